// The greatest times in messages and images.
ghost use Rattle.std.specs.Prelude.{◌≡◌};
ghost use Rattle.house_directory.specs.Times.{latest_in_body, latest_in_image, latest_in_kept, latest_in_message};

use cds_messages::{Body, Image, ImageDir, Message};
use purge_rule::latest_in_entry;

/// The greatest time in a message: of its floor, of the stamp that it carries, and of its entry,
/// its replica or its delta.
pub fn latest_in_message(message: &Message) -> u64
    ensures { result ≡ latest_in_message message.now }
{
    message.floor.max(latest_in_body(&message.body))
}

/// The greatest time that a message carries; 0 where there is none.
fn latest_in_body(body: &Body) -> u64
    ensures { result ≡ latest_in_body body.now }
{
    match body {
        Body::Update(fragment) => latest_in_entry(&fragment.entry),
        Body::Gather(t) | Body::SpreadAck(t) | Body::Advance(t) => t.time,
        Body::Gathered(t, delta) | Body::Spread(t, delta) => t.time.max(delta.latest_time()),
        Body::Join(_, replica) => replica.latest_time(),
        Body::Leave => 0,
    }
}

/// The greatest time in an image: of its floor and of its replicas.
pub fn latest_in_image(image: &Image) -> u64
    ensures { result ≡ latest_in_image image.now }
{
    let mut time = image.floor;
    for (_, kept) in image.dirs.iter() {
        time = time.max(latest_in_kept(kept));
    }
    time
}

/// The greatest time of the replica that is kept; 0 where there is none.
fn latest_in_kept(kept: &ImageDir) -> u64
    ensures { result ≡ latest_in_kept kept.now }
{
    match kept {
        ImageDir::Held(_, _, replica) => replica.latest_time(),
        ImageDir::Gone(_) => 0,
    }
}

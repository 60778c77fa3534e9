// How a disk in memory is started again after a stop. Only the end of its octets is gone over: from
// the least place that was written or cut since the last sync.
ghost use Rattle.std.specs.Prelude.{◌≡◌, ◌+◌, ◌-◌, ◌/◌, ◌^◌, ◌<◌, ◌≤◌, ◌++◌, ℕ, List, length, take, drop, reverse, IfOk, OnOk};
ghost use Rattle.house_journal.specs.MemoryDisks.{Fits, before_step, change_of, changes_in, synced_in};
ghost use Rattle.house_journal.specs.Restarts.{left_by, torn_by};
ghost use Rattle.house_journal.specs.declared.leave.Leave.TheVariants.{Torn};
ghost use Rattle.house_journal.specs.Unwindings.{AreFrom, TearFrom, all_torn, torn_in, torn_onto};

use crate::Leave;
use crate::memory::overwrite;
use crate::step::{Step, Tear};
use cds_stamps::Octets;
use std::alloc::{AllocError, Global};

/// The least place of a step since the last sync; without one the end of the octets.
pub(crate) fn first_changed(steps: &[Step], len: usize) -> usize
    ensures within { result ≤ len }
    ensures least { AreFrom result (reverse steps.now) }
{
    let mut low = len;
    let mut left = steps.len();
    'back: while left > 0 {
        let step = &steps[left - 1];
        if step.synced {
            return low;
        }
        low = low.min(step.at);
        left -= 1;
    }
    low
}

// The octets from a place on before a step, by those after it.
fn end_before(alloc: Global, end: &[u8], low: usize, step: &Step) -> Result<Vec<u8>, AllocError>
    requires from { low ≤ step.now.at }
    requires within { step.now.at + step.now.len ≤ low + length end.now }
    ensures { (front : List ℕ) → length front ≡ low
        → IfOk result (λ v. front ++ v.items ≡ before_step step.now (front ++ end.now)) }
{
    let at = step.at - low;
    let mut before = end[..at].to_vec(alloc)?;
    before.extend_from_slice(step.gone.list())?;
    before.extend_from_slice(&end[at + step.len..])?;
    Ok(before)
}

// The first half of a write, out of the octets from a place on after it.
fn half_of(alloc: Global, end: &[u8], low: usize, step: &Step) -> Result<Tear, AllocError>
    requires from { low ≤ step.now.at }
    requires within { step.now.at + step.now.len ≤ low + length end.now }
    requires room { low + length end.now < 2 ^ 64 }
    ensures at { IfOk result (λ t. t.at ≡ step.now.at) }
    ensures end { IfOk result (λ t. t.end ≡ step.now.at + step.now.len) }
    ensures half { IfOk result (λ t. t.half
        ≡ take (step.now.len / 2) (drop (step.now.at - low) end.now)) }
{
    let at = step.at - low;
    Ok(Tear {
        at: step.at,
        end: step.at + step.len,
        half: Octets::of(alloc, &end[at..at + step.len / 2])?,
    })
}

// Notes the first half of a write, and of a cut nothing.
fn note_half(
    alloc: Global,
    end: &[u8],
    low: usize,
    step: &Step,
    tears: &mut Vec<Tear>,
) -> Result<(), AllocError>
    requires from { low ≤ step.now.at }
    requires within { step.now.at + step.now.len ≤ low + length end.now }
    requires room { low + length end.now < 2 ^ 64 }
    ensures noted { (front : List ℕ) → length front ≡ low → OnOk result ((file : List ℕ)
        → all_torn tears.new.items file
        ≡ all_torn tears.old.items (torn_by (change_of step.now (front ++ end.now)) file)) }
    ensures from { TearFrom low tears.old.items → OnOk result (TearFrom low tears.new.items) }
{
    if step.cuts {
        return Ok(());
    }
    let half = half_of(alloc, end, low, step)?;
    tears.push(half)?;
    Ok(())
}

/// Goes back to the last sync: the octets then, from a place on, and the first halves of the writes
/// since, the newest first.
pub(crate) fn unwound(
    alloc: Global,
    steps: &[Step],
    octets: &[u8],
    low: usize,
) -> Result<(Vec<u8>, Vec<Tear>), AllocError>
    requires fits { Fits (reverse steps.now) octets.now }
    requires within { low ≤ length octets.now }
    requires from { AreFrom low (reverse steps.now) }
    requires small { low < 2 ^ 63 }
    ensures synced { IfOk result (λ r. take low octets.now ++ r.0.items
        ≡ synced_in (reverse steps.now) octets.now) }
    ensures torn { IfOk result (λ r. all_torn r.1.items (take low octets.now ++ r.0.items)
        ≡ torn_in (reverse steps.now) octets.now) }
    ensures from { IfOk result (λ r. TearFrom low r.1.items) }
{
    let mut end = Vec::from_slice(alloc, &octets[low..])?;
    let mut tears = Vec::new(alloc);
    let mut left = steps.len();
    'back: while left > 0 {
        let step = &steps[left - 1];
        if step.synced {
            return Ok((end, tears));
        }
        note_half(alloc, &end, low, step, &mut tears)?;
        end = end_before(alloc, &end, low, step)?;
        left -= 1;
    }
    Ok((end, tears))
}

// Writes the first half of a write over octets that begin at a place.
fn apply(end: &mut Vec<u8>, low: usize, write: &Tear) -> Result<(), AllocError>
    requires { low ≤ write.now.at }
    ensures { (front : List ℕ) → length front ≡ low
        → OnOk result (front ++ end.new.items ≡ torn_onto write.now (front ++ end.old.items)) }
{
    let len = end.len().max(write.end - low);
    end.resize(len, 0xFF)?;
    overwrite(end, write.at - low, write.half.list())
}

/// The octets from a place on of which a stop leaves a part of each write since the last sync.
pub(crate) fn torn(
    alloc: Global,
    steps: &[Step],
    octets: &[u8],
    low: usize,
) -> Result<Vec<u8>, AllocError>
    requires fits { Fits (reverse steps.now) octets.now }
    requires within { low ≤ length octets.now }
    requires from { AreFrom low (reverse steps.now) }
    requires small { low < 2 ^ 63 }
    ensures { IfOk result (λ v. take low octets.now ++ v.items
        ≡ left_by Torn (synced_in (reverse steps.now) octets.now)
        (changes_in (reverse steps.now) octets.now)) }
{
    let (mut end, mut tears) = unwound(alloc, steps, octets, low)?;
    'tears: while let Some(write) = tears.pop() {
        apply(&mut end, low, &write)?;
    }
    Ok(end)
}

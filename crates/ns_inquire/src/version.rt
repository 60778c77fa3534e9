//! Which versions of an interface an inquiry means.
ghost use Rattle.std.specs.Prelude.{◌≡◌};
ghost use Rattle.ns_inquire.specs.Inquiries.{by_version, is_version};

use tower_codec::Interface;

/// Which versions of an interface are meant, where one is asked for.
#[derive(Clone, Copy, Debug, PartialEq, Eq)]
pub enum Version {
    /// Any.
    All,
    /// The same major version, and the same minor version or a later one.
    Compatible,
    /// The same major and minor version.
    Exact,
    /// The same major version.
    MajorOnly,
    /// An earlier major version, or the same one with the same minor version or an earlier one.
    Upto,
}

impl Version {
    /// Whether an interface that is offered is the one that is asked for, in a version that is
    /// meant.
    pub fn allows(self, asked: &Interface, offered: &Interface) -> bool
        ensures { result ≡ is_version self asked.now offered.now }
    {
        offered.uuid == asked.uuid && self.allows_version(asked, offered)
    }

    // Whether the version is one that is meant.
    fn allows_version(self, asked: &Interface, offered: &Interface) -> bool
        ensures { result ≡ by_version self asked.now offered.now }
    {
        match self {
            Version::All => true,
            Version::Compatible => offered.major == asked.major && asked.minor <= offered.minor,
            Version::Exact => offered.major == asked.major && offered.minor == asked.minor,
            Version::MajorOnly => offered.major == asked.major,
            Version::Upto => {
                offered.major < asked.major
                    || offered.major == asked.major && offered.minor <= asked.minor
            }
        }
    }
}

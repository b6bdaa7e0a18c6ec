ghost use Rattle.std.specs.Prelude.{◌≡◌, false, Ok, IsErr};
ghost use Rattle.vm_outside.specs.Outside.{raised};

use crate::{Failed, Link};

/// A link where nobody ever connects: `next` answers false. A program that serves no connections
/// hands it in.
///
/// No connection is present, so code that takes any link can't call `read` and `write`. Called on
/// this type itself, they fail and count it.
#[derive(Debug, Drop)]
pub struct NoLink {
    /// How many calls of `read` were made, up to 2^64 - 1.
    pub read_faults: u64,
    /// How many calls of `write` were made, up to 2^64 - 1.
    pub write_faults: u64,
}

impl NoLink {
    /// A link that wasn't called yet.
    pub fn new() -> NoLink
        ensures none { ⟦<NoLink as Link>⟧.present result ≡ false }
        ensures accept_faults { ⟦<NoLink as Link>⟧.accept_faults result ≡ 0 }
        ensures read_faults { ⟦<NoLink as Link>⟧.read_faults result ≡ 0 }
        ensures write_faults { ⟦<NoLink as Link>⟧.write_faults result ≡ 0 }
    {
        NoLink {
            read_faults: 0,
            write_faults: 0,
        }
    }
}

impl Link for NoLink {
    ghost present = { λ _. false };

    ghost accept_faults = { λ _. 0 };

    ghost read_faults = { λ link. link.read_faults };

    ghost write_faults = { λ link. link.write_faults };

    fn next(&mut self) -> Result<bool, Failed>
        ensures none { result ≡ Ok false }
        ensures same { self.new ≡ self.old }
    {
        Ok(false)
    }

    fn read(&mut self, _into: &mut [u8]) -> Result<usize, Failed>
        ensures fails { IsErr result }
        ensures counted { self.new
            ≡ record self.old { read_faults = raised self.old.read_faults } }
    {
        self.read_faults = self.read_faults.saturating_add(1);
        Err(Failed)
    }

    fn write(&mut self, _bytes: &[u8]) -> Result<usize, Failed>
        ensures fails { IsErr result }
        ensures counted { self.new
            ≡ record self.old { write_faults = raised self.old.write_faults } }
    {
        self.write_faults = self.write_faults.saturating_add(1);
        Err(Failed)
    }

    fn end(&mut self)
        ensures { self.new ≡ self.old }
    {}
}

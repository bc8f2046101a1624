ghost use Rattle.std.specs.Prelude.{◌≡◌, IfErr, OnOk, Some, None, false};
ghost use Rattle.idx_header.specs.Faults.{first_of};
ghost use Rattle.idx_header.specs.Keys.{lacks_key};
ghost use Rattle.idx_header.specs.HeaderOf.{version_faults};

use crate::key::Key;
use crate::keys::standing;
use crate::{HeaderFault, HeaderKind};
use idx_text::{Section, read_number};

const VERSION: u64 = 6;

/// Refuses each version but 6.
pub(crate) fn check_version(sections: &[Section]) -> Result<(), HeaderFault>
    requires { lacks_key sections.now ≡ false }
    ensures ok { OnOk result (first_of (version_faults sections.now) ≡ None) }
    ensures err { IfErr result (λ f. first_of (version_faults sections.now) ≡ Some f) }
{
    let version = standing(sections, Key::Version);
    match read_number(version.value.as_slice()) {
        Some(VERSION) => Ok(()),
        Some(_) => Err(HeaderFault::on(version.line, HeaderKind::OtherVersion)),
        None => Err(HeaderFault::on(version.line, HeaderKind::BadNumber)),
    }
}

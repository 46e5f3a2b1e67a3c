//! Labels looked up by their name.
ghost use Rattle.std.specs.Prelude.{◌≡◌};
ghost use Rattle.sheet.specs.Assembly.{target as targets};

use crate::label::Label;
use cell::address::Address;
use lexer::label_name::LabelName;

/// Where a label is, if it is defined.
pub fn target(labels: &[Label], name: LabelName) -> Option<Address>
    ensures { result ≡ targets labels.now name }
{
    labels
        .iter()
        .find(|label| label.name == name)
        .map(|label| label.address)
}

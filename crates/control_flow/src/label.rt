//! Label lines.
ghost use Rattle.std.specs.Prelude.{◌≡◌};
ghost use Rattle.control_flow.specs.Labels.{is_label};

use fx_num::Text;
use script_lines::RawWords;

/// The first word of a label line.
const LABEL: &[u8] = b"label";

/// Whether the words of a line are `label` and this name.
pub(crate) fn is_label(words: &RawWords, label: &Text) -> bool
    ensures { result ≡ is_label label.now words.now }
{
    match words.as_slice() {
        [word, name] => word.text.as_bytes() == LABEL && name.text.same(label),
        _ => false,
    }
}

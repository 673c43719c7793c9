//! The scripts of a run.

ghost use Rattle.std.specs.Prelude.{◌≡◌, option_copied};
ghost use Rattle.js_tree.specs.Scripts as numbers;

use crate::script::Script;

/// The script of a number; scripts are counted from 1.
pub fn script_numbered(scripts: &[Script], number: u32) -> Option<&Script>
    ensures { option_copied result ≡ numbers.script_numbered scripts.now number }
{
    if number == 0 {
        return None;
    }
    scripts.get(number as usize - 1)
}

// Input: the node under a pixel, and under the pointer.
ghost use Rattle.std.specs.Prelude.{◌≡◌};
ghost use Rattle.tree.specs.Input.{hit_test, hit_under};

use crate::{Pixel, Ui};
use boxes::input;
use field::NodeId;

// The node under a pixel: none where the root's box does not hold it.
pub fn hit_test(ui: &Ui, pixel: Pixel) -> Option<NodeId>
    ensures { result ≡ hit_test ui.now pixel }
{
    input::hit_test(&ui.slots, &ui.layout, pixel)
}

// The node under a pointer: none where it is nowhere.
pub fn under_pointer(ui: &Ui, pointer: Option<Pixel>) -> Option<NodeId>
    ensures { result ≡ hit_under ui.now pointer }
{
    input::under_pointer(&ui.slots, &ui.layout, pointer)
}

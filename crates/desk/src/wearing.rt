// The bits of nodes after an event.
ghost use Rattle.std.specs.Prelude.{◌≡◌};
ghost use Rattle.tree.specs.Wearing.{refreshed};

use arena::listed::Listed;
use boxes::wearing::{Marks, bits_in, in_turn, restated};
use field::NodeId;
use tree::wearing::wear;
use tree::{Ui, links};

// Every stated slot, then the nodes hovered, pressed and in focus wear their bits; those of the three with bits are stated.
pub(crate) fn refresh_states(u: &mut Ui, hover: Option<NodeId>)
    ensures { u.new ≡ refreshed u.old hover }
{
    let marks = Marks {
        hover,
        pressed: u.interaction.pressed,
        focus: u.interaction.focus,
    };
    let Listed { items, count } = restated(u.limits.nodes, &u.slots, u.stated, marks);
    let turns = in_turn(u.limits.nodes, &u.slots, u.stated, u.stated_count, marks);
    for i in turns.as_slice() {
        let bits = bits_in(links::slot_at(&u.slots, *i), *i, marks);
        wear(u, *i, bits);
    }
    u.stated = items;
    u.stated_count = count as u32;
}

// The waiting outputs, oldest first.
ghost use Rattle.std.specs.Prelude.{◌≡◌, ◌≤◌, drop};
ghost use Rattle.tree.specs.Trees.{waiting_of, with_waiting};

use tree::Ui;

// The oldest output no longer waits: the others move up.
#[tactic(auto, using(crate::proofs::OutputSteps::moved_up), unfolding(tree::specs::Trees::with_waiting))]
pub(crate) fn drop_oldest(u: &mut Ui)
    requires { (1 ≤ u.old.output_count) × (u.old.output_count ≤ 128) }
    ensures { u.new ≡ with_waiting u.old (drop 1 (waiting_of u.old)) }
{
    let count = u.output_count as usize;
    u.outputs.copy_within(1..count, 0);
    u.output_count -= 1;
}

// Damage, for the program `broken`: trees set as no call leaves them, and whether two trees are the same in every place, those past a count
// too.
#![tactic(auto)]

ghost use Rattle.std.specs.Fn.{FnOnceReturnsAtMut};
ghost use Rattle.std.specs.Prelude.{◌≡◌, ◌↔◌, IsTrue};

use tree::Ui;

// The tree after a damage: numbers of it set to other values.
pub fn done<F: FnOnce(&mut Ui)>(mut u: Ui, damage: F) -> Ui
    requires { F.IsAlwaysCallable damage }
    ensures { FnOnceReturnsAtMut F.FnOnce damage u tt result }
{
    damage(&mut u);
    u
}

pub fn same(a: &Ui, b: &Ui) -> bool
    ensures { IsTrue result ↔ (a.now ≡ b.now) }
{
    a == b
}

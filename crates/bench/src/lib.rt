// What tests/bench measures beside the Rust source: trees of some shapes, and many calls of one kind on them. It is for that test alone;
// its one public function passes numbers.
#![tactic(auto)]

mod build;
mod kinds;
mod mix;
mod reads;
mod runs;
mod shapes;

use kinds::Kind;
use shapes::Shape;

// Builds the tree of a shape and makes n calls of a kind on it, three times over, each from the tree that the last ones left. Gives a
// number mixed from all answers and the whole tree at the end. A clock takes a handle, and C has none to pass: the three times are 0, and
// the caller times the calls, those that make no calls too, so that it knows what the building of the tree takes.
// Kept: shape and kind as numbers, since C passes them.
#[unsafe(no_mangle)]
pub extern "C" fn bench_run(shape: u32, kind: u32, n: u32, times: &mut [u64; 3]) -> u64 {
    *times = [0u64; 3];
    let shape = Shape::from(shape);
    let mut u = build::tree(shape);
    let mut acc: u64 = 0;
    if let Ok(kind) = Kind::try_from(kind) {
        build::ready(&mut u, shape, kind);
        for _ in 0..3 {
            acc = runs::run(&mut u, shape, kind, n, acc);
            acc = reads::read(&u, shape, kind, n, acc);
        }
    }
    mix::whole(&u, shape, acc)
}

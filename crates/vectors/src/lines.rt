// Vectors of one kind, a line each.
use crate::show::heading;
use std::io;

// A heading, and what is run on each vector.
pub(crate) fn group<T: Copy, F: Fn(T) -> io::Result<()>>(
    rt: &impl Print,
    name: &str,
    vectors: &[T],
    run: F,
) -> io::Result<()>
    requires { F.IsAlwaysCallable run }
{
    heading(rt, name)?;
    for vector in vectors {
        run(*vector)?;
    }
    Ok(())
}

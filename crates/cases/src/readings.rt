use crate::lens;
use reading::read_point;
use std::io;

// The worked points of document 01 by the plain reading.
pub(crate) fn readings(rt: &impl Print) -> io::Result<()> {
    for (x, y) in [
        (2, 0),
        (2, 2),
        (1, 1),
        (4, 0),
        (0, 0),
        (1, 5),
        (3, -2),
        (5, 0),
    ] {
        print!(rt; "the lens at ({x},{y}): ")?;
        match read_point(lens(), x, y) {
            Ok(answer) => println!(rt; "{answer}")?,
            Err(refusal) => println!(rt; "{refusal}")?,
        }
    }
    Ok(())
}

// Fields typed in and read as metres, and texts measured.
use crate::lines::group;
use crate::show::Width;
use field::Field;
use std::io;
use text::refusal;

// A text typed into a field, the number that refuses it or 0, and the centimetres.
fn metres(rt: &impl Print, s: &str) -> io::Result<()> {
    let typed = s
        .chars()
        .fold(Field::empty(), |f, ch| f.insert(u32::from(ch)));
    let m = typed.metres();
    println!(rt; "\"{s}\": {}, {}", refusal::number(m), m.unwrap_or(0))
}

pub(crate) fn run(rt: &impl Print) -> io::Result<()> {
    group(
        rt,
        "Metres: the number of the answer, and centimetres",
        &[
            "", "0", "7", "7.4", "7.40", "007", "999.99", "1000", "7.", ".5", "7.405", "7,4", " 7",
            "7 ", "-1", "12a", "12.3a", "7..4", "0.05", "7,40", "7,", ",5", ",", "7,405", "7,4.0",
            "7.4,0", "7,4,0", " ", "   ", " 7.4 ", "  007,5 ", " 0 ", " 1000 ", "7. ", " ,5",
            "7 4", "7 .4", "7. 4", "7, 4", "\t", "\t7", "7\t",
        ],
        |s| metres(rt, s),
    )?;
    group(
        rt,
        "Widths, in raw units",
        &[
            "",
            "Hi",
            "?",
            "é",
            "Hé€😀i",
            " !\"#$%&'()*+,-./0123456789:;<=>?@ABCDEFGHIJKLMNOPQRSTUVWXYZ[\\]^_`abcdefghijklmnopqrstuvwxyz{|}~",
        ],
        |s| println!(rt; "\"{s}\": {}", Width(text::measure(s.as_bytes()))),
    )
}

// A table of bytes read as one of names in UTF-8.
use crate::dice::Dice;
use crate::report::{Kind, Report};
use crate::trial::Both;
use crate::{drawn, reading};
use keys::SortKeys;
use std::alloc::{AllocError, Global};
use table::Table;

// Names have the keys that they have as bytes; half of them are of ASCII letters, and the same bytes then.
pub(crate) fn run(
    heap: Global,
    dice: &mut Dice,
    both: &Both,
    report: &mut Report,
) -> Result<(), AllocError> {
    let wide = both.table.in_utf8();
    for _ in 0..20 {
        let drawn = drawn::name(heap, dice, both.alphabet)?;
        let ascii = dice.once_in(2);
        let mut bytes = Vec::new(heap);
        let mut written = Vec::new(heap);
        for byte in &drawn {
            let letter = if ascii { *byte & 0x7f } else { *byte };
            bytes.push(letter)?;
            reading::write(&mut written, true, letter as u32)?;
        }
        report.count(Kind::Widened);
        if ascii {
            report.count(Kind::WidenedAscii);
        }
        try_key(heap, both, &wide, &bytes, &written, report)?;
    }
    Ok(())
}

fn try_key(
    heap: Global,
    both: &Both,
    wide: &Table,
    bytes: &[u8],
    written: &[u8],
    report: &mut Report,
) -> Result<(), AllocError> {
    let key = both.plain.name(heap, bytes)?.key;
    let told = wide.sort_key(heap, written);
    let same = match &told {
        Ok(told) => told.as_slice() == key.as_slice(),
        Err(_) => false,
    };
    if !same || !wide.utf8() || both.table.utf8() {
        let what = format!(in heap; "in_utf8, sort_key of {written:?}: {told:?}, plainly {key:?}")?;
        report.differ(both.plain, what)?;
    }
    Ok(())
}

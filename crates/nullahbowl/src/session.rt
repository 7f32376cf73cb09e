// What the lines read so far make, and what they ask for.
ghost use Rattle.std.specs.Prelude.{◌≡◌, false, true};
ghost use Rattle.table.specs.Buffer.{buffer_pairs, buffer_rules};
ghost use Rattle.table.specs.Rules.{in_utf8};
ghost use Rattle.table.specs.Valley.{valley, valley_pairs};

mod taking;

use catalogue::CatalogueBuf;

#[derive(Drop)]
pub struct Session {
    // All names, and the table: the valley's until a line of a table has been taken.
    book: CatalogueBuf,
    // Whether a line of a table has been taken.
    own: bool,
    // The letters that the lines of a table name, those of pairs and longer runs too; all, while none has been taken.
    named: [bool; 65_536],
    ghost valleys: { ((buffer_rules book.table).utf8 ≡ true) × (own ≡ false → (buffer_rules book.table ≡ in_utf8 valley) × (buffer_pairs book.table ≡ valley_pairs)) },
}

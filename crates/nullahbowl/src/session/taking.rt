// Taking a line, and what may be asked then.
ghost use Rattle.std.specs.Prelude.{◌≡◌, false, IfOk, slice_set, true};
ghost use Rattle.catalogue.specs.Filling.{held_rules};
ghost use Rattle.catalogue.specs.Naming.{names_left};
ghost use Rattle.nullahbowl.specs.Sessions.{Begun, Fresh, IsListed, Joined, JoinedLong, KeyAnswered, Prepared, Settled, Taken, Weighed, all_named, found_names, session_letters};
ghost use Rattle.table.specs.Buffer.{buffer_longs, buffer_pairs, buffer_rules};
ghost use Rattle.table.specs.Meaning.{longs_of, pairs_of, rules_of};
ghost use Rattle.pieces.specs.Runs.{long_letters};
ghost use Rattle.table.specs.Rules.{in_utf8};
ghost use Rattle.table.specs.Valley.{valley, valley_pairs};
ghost use Rattle.texts.specs.Lines.{meaning_of};
ghost use Rattle.texts.specs.Parts.{without_return};

use crate::answer::{Answer, TakeError};
use crate::session::Session;
use catalogue::{CatalogueBuf, NamesFound};
use keys::{NameRefusal, SortKeys};
use std::alloc::{AllocError, Global};
use table::{LetterEntry, Long, LongRun, Pair, Refusal, Table, TableBuf};
use texts::{Command, Entry, Fault, Line, without_return};

// How many numbers a letter may have.
const LETTERS: usize = 65_536;

impl Session {
    // Nothing has been taken yet.
    pub fn new(heap: Global) -> Result<Session, AllocError>
        ensures { IfOk result (λ s. Fresh s) }
    {
        let valley = Table::valley().in_utf8().to_buf(heap)?;
        Ok(Session {
            book: CatalogueBuf::new(valley, heap)?,
            own: false,
            named: [true; LETTERS],
        })
    }

    // The table by now.
    pub fn table(&self) -> Table<'_>
        ensures rules { rules_of result ≡ held_rules self.now.book }
        ensures pairs { pairs_of result ≡ buffer_pairs self.now.book.table }
        ensures longs { longs_of result ≡ buffer_longs self.now.book.table }
        ensures valleys { self.now.own ≡ false → (rules_of result ≡ in_utf8 valley) × (pairs_of result ≡ valley_pairs) }
    {
        self.book.table()
    }

    // The letters that the lines of the table name; all, where it is the valley's.
    pub fn letters(&self) -> &[bool]
        ensures { result.now ≡ session_letters self.now }
    {
        &self.named
    }

    // The names that begin so, in order; none where a name has come or the table has changed since all were put in order.
    pub fn find(&self, ask: &[u8]) -> NamesFound<'_>
        ensures listed { IsListed self.now }
        ensures found { names_left result ≡ found_names self.now ask.now }
    {
        match self.book.catalogue() {
            Some(catalogue) => catalogue.found(ask),
            None => NamesFound::default(),
        }
    }

    // All names are put in order, where they are not yet.
    pub fn put_in_order(&mut self, heap: Global) -> Result<(), AllocError>
        ensures { Settled self.old result self.new }
    {
        self.book.put_in_order(heap)
    }

    // One line more, which stands at `place` in its file, and what it asks for.
    pub fn take<'l>(
        &mut self,
        heap: Global,
        line: &'l [u8],
        place: usize,
    ) -> Result<Answer<'l>, TakeError>
        ensures { Taken self.old (meaning_of (without_return line.now)) place result self.new }
    {
        match Line::read(without_return(line)) {
            Line::Blank => Ok(Answer::Nothing),
            Line::Unreadable => Err(TakeError::Refused(Fault::Text(place))),
            Line::NotUtf8(byte) => Err(TakeError::Refused(Fault::Bytes(byte))),
            Line::Says(Command::Enter(Entry::Letter(entry))) => {
                self.weigh(heap, entry)?;
                Ok(Answer::Nothing)
            }
            Line::Says(Command::Enter(Entry::Pair(pair))) => {
                self.join(heap, pair)?;
                Ok(Answer::Nothing)
            }
            Line::Says(Command::Enter(Entry::Long(long))) => {
                self.join_long(heap, long)?;
                Ok(Answer::Nothing)
            }
            Line::Says(Command::Find(ask)) => {
                self.prepare(heap, ask)?;
                Ok(Answer::Find(ask))
            }
            Line::Says(Command::Key(name)) => self.key(heap, name),
            Line::Says(Command::Name(name)) => {
                self.book.push(name)?;
                Ok(Answer::Nothing)
            }
        }
    }

    // The key of a name under the table by now. This and what enters a line of a table stand apart: written out in `take`, they
    // would have the room of a table or two cleared for each line, whatever it says.
    #[inline(never)]
    fn key<'l>(&self, heap: Global, name: &[u8]) -> Result<Answer<'l>, TakeError>
        ensures { KeyAnswered (held_rules self.now.book) name.now result }
    {
        Ok(Answer::Key(self.table().sort_key(heap, name)?))
    }

    // One letter more. What is turned away changes nothing.
    #[inline(never)]
    fn weigh(&mut self, heap: Global, entry: LetterEntry) -> Result<(), TakeError>
        ensures { Weighed self.old entry result self.new }
    {
        if self.own {
            self.book.add_letter(entry)?;
        } else {
            let mut table = TableBuf::in_utf8(heap)?;
            table.add_letter(entry)?;
            self.begin(table);
        }
        mark(&mut self.named, entry.letter);
        Ok(())
    }

    // One pair more. What is turned away changes nothing.
    #[inline(never)]
    fn join(&mut self, heap: Global, pair: Pair) -> Result<(), TakeError>
        ensures { Joined self.old pair result self.new }
    {
        if self.own {
            self.book.add_pair(pair)?;
        } else {
            let mut table = TableBuf::in_utf8(heap)?;
            table.add_pair(pair)?;
            self.begin(table);
        }
        mark(&mut self.named, pair.first);
        mark(&mut self.named, pair.second);
        Ok(())
    }

    // One run of three or four letters more. What is turned away changes nothing.
    #[inline(never)]
    fn join_long(&mut self, heap: Global, long: Long) -> Result<(), TakeError>
        ensures { JoinedLong self.old long result self.new }
    {
        if self.own {
            self.book.add_long(long)?;
        } else {
            let mut table = TableBuf::in_utf8(heap)?;
            table.add_long(long)?;
            self.begin(table);
        }
        mark_run(&mut self.named, long.run);
        Ok(())
    }

    // The first line of a table has been taken: the table is that of the lines, and no letter is named yet.
    fn begin(&mut self, table: TableBuf)
        requires { (buffer_rules table).utf8 ≡ true }
        ensures { Begun self.old table self.new }
    {
        self.book.set_table(table).unwrap();
        self.own = true;
        self.named = [false; LETTERS];
    }

    // The names are in order, if what is asked may be asked.
    #[inline(never)]
    fn prepare(&mut self, heap: Global, ask: &[u8]) -> Result<(), TakeError>
        ensures { Prepared self.old ask.now result self.new }
    {
        if let Some(why) = NameRefusal::of(true, ask) {
            return Err(TakeError::Refused(Fault::Question(why)));
        }
        Ok(self.put_in_order(heap)?)
    }
}

// The letters of a longer run are named.
fn mark_run(named: &mut [bool], run: LongRun)
    ensures { named.new ≡ all_named named.old (long_letters run) }
{
    mark(named, run.first);
    mark(named, run.second);
    mark(named, run.third);
    if let Some(fourth) = run.fourth {
        mark(named, fourth);
    }
}

// A letter is named; what is none is not.
fn mark(named: &mut [bool], letter: u32)
    ensures { named.new ≡ slice_set named.old letter true }
{
    let letter = letter as usize;
    if letter < named.len() {
        named[letter] = true;
    }
}

// Chaining pairs.
ghost use Rattle.std.specs.Prelude.{◌≡◌, ◌+◌, ◌*◌, ◌/◌, ◌<◌, ◌≤◌, false, length};
ghost use Rattle.table.specs.Meaning.{AllChained, AreChained};
ghost use Rattle.table.specs.Chain.{bucket, bucket_at};
ghost use Rattle.table.specs.Numbers.{first_at};
ghost use Rattle.table.specs.Refusals.{repeated};

use crate::fault::Refusal;
use crate::pairs::Pairs;
use crate::pairs::find::bucket;

impl<'a> Pairs<'a> {
    // No pair is chained yet.
    pub(crate) fn new(numbers: &'a [u16]) -> Pairs<'a>
        ensures { AreChained numbers.now 0 result }
    {
        Pairs {
            numbers,
            count: 0,
            begins: [false; 256],
            heads: [0; 256],
            links: [0; 200],
        }
    }

    // All pairs are chained one after the other, up to the first that equals an earlier one, which is told.
    pub(crate) fn chain(&mut self) -> Result<(), Refusal>
        requires none { self.old.count ≡ 0 }
        requires few { length self.old.numbers.now / 5 ≤ 200 }
        ensures { AllChained self.old.numbers.now result self.new }
    {
        for (place, pair) in self.numbers.chunks_exact(5).enumerate() {
            let first = pair[0] as u32;
            let second = pair[1] as u32;
            if self.locate(first, second).is_some() {
                return Err(Refusal::Twice(place));
            }
            self.link(first, second);
        }
        Ok(())
    }

    // The next pair is chained, in front of those that are in the same bucket.
    fn link(&mut self, first: u32, second: u32)
        requires within { 5 * self.old.count + 5 ≤ length self.old.numbers.now }
        requires few { self.old.count < 200 }
        requires first { first_at self.old.numbers.now self.old.count ≡ first }
        requires bucket { bucket_at self.old.numbers.now self.old.count ≡ bucket first second }
        requires apart { repeated self.old.numbers.now self.old.count ≡ false }
        ensures { AreChained self.old.numbers.now (self.old.count + 1) self.new }
    {
        let bucket = bucket(first, second) as usize;
        self.begins[(first % 256) as usize] = true;
        self.links[self.count] = self.heads[bucket];
        self.count += 1;
        self.heads[bucket] = self.count as u8;
    }
}

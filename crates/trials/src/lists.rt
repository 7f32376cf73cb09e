// Lists of names and what is found in them, by looking at each name.
ghost use Rattle.std.specs.Prelude.{◌≡◌, ◌-◌, ◌^◌, min};

use crate::named::{Name, begins, compare};
use crate::plain::Plain;
use crate::reading;
use catalogue::ListFault;
use std::alloc::{AllocError, Global};
use std::fmt;

// The lists of a catalogue, as they are lent; they need not be those of one.
#[derive(Drop)]
pub(crate) struct Lists {
    pub(crate) text: Vec<u8>,
    pub(crate) starts: Vec<u32>,
    pub(crate) places: Vec<u32>,
}

impl Lists {
    // Names one behind the other, and a list of none of them.
    pub(crate) fn new(heap: Global, names: &[Vec<u8>]) -> Result<Lists, AllocError> {
        let mut lists = Lists {
            text: Vec::new(heap),
            starts: Vec::new(heap),
            places: Vec::new(heap),
        };
        lists.starts.push(0)?;
        for name in names {
            lists.push_name(name)?;
        }
        Ok(lists)
    }

    pub(crate) fn copy(&self, heap: Global) -> Result<Lists, AllocError> {
        Ok(Lists {
            text: self.text.to_vec(heap)?,
            starts: self.starts.to_vec(heap)?,
            places: self.places.to_vec(heap)?,
        })
    }

    pub(crate) fn push_name(&mut self, name: &[u8]) -> Result<(), AllocError> {
        self.text.extend_from_slice(name)?;
        self.starts.push(number(self.text.len()))?;
        Ok(())
    }

    // The names, as they are read; those that are not in the list too.
    pub(crate) fn names(&self, heap: Global, plain: &Plain) -> Result<Vec<Name>, AllocError> {
        let mut names = Vec::new(heap);
        for two in self.starts.windows(2) {
            if let [from, to] = two {
                let letters = self.text.get(*from as usize..*to as usize);
                names.push(plain.name(heap, letters.unwrap_or(b""))?)?;
            }
        }
        Ok(names)
    }

    // What should be found: none where something is not as it should be.
    pub(crate) fn answer(
        &self,
        heap: Global,
        plain: &Plain,
        is_sound: bool,
        question: &[u8],
    ) -> Result<Vec<u32>, AllocError> {
        if !is_sound {
            return Ok(Vec::new(heap));
        }
        let names = self.names(heap, plain)?;
        Ok(part(heap, &names, &self.places, &plain.name(heap, question)?)?.numbers)
    }

    // What is wrong with the lists as those of a catalogue.
    pub(crate) fn fault(
        &self,
        heap: Global,
        plain: &Plain,
    ) -> Result<Option<ListFault>, AllocError> {
        match self.names_fault(plain.utf8) {
            Some(fault) => Ok(Some(fault)),
            None => Ok(self.places_fault(&self.names(heap, plain)?)),
        }
    }

    // The same of the text and the starts alone.
    pub(crate) fn names_fault(&self, utf8: bool) -> Option<ListFault> {
        let Some(end) = self.starts.last() else {
            return Some(ListFault::NoStart);
        };
        for (place, two) in self.starts.windows(2).enumerate() {
            if let [one, next] = two {
                if *next < *one {
                    return Some(ListFault::StartFalls(place.saturating_add(1)));
                }
            }
        }
        if *end as usize != self.text.len() {
            return Some(ListFault::EndsElsewhere(self.starts.len().saturating_sub(1)));
        }
        for (number, two) in self.starts.windows(2).enumerate() {
            if let [from, to] = two {
                let name = self.text.get(*from as usize..*to as usize);
                if let Some(why) = reading::refusal(utf8, name.unwrap_or(b"")) {
                    return Some(ListFault::NameRefused(number, why));
                }
            }
        }
        None
    }

    fn places_fault(&self, names: &[Name]) -> Option<ListFault> {
        for (place, number) in self.places.iter().enumerate() {
            if *number as usize >= names.len() {
                return Some(ListFault::NoSuchName(place));
            }
        }
        for (place, two) in self.places.windows(2).enumerate() {
            if let [one, next] = two {
                if compare(key_of(names, *one), key_of(names, *next)).is_gt() {
                    return Some(ListFault::OutOfOrder(place.saturating_add(1)));
                }
            }
        }
        None
    }
}

// A number as it lies in a list; the largest where it is too large for that.
pub(crate) fn number(place: usize) -> u32
    ensures { result ≡ min place (2 ^ 32 - 1) }
{
    u32::try_from(place).unwrap_or(u32::MAX)
}

// The key of the name of a number.
fn key_of(names: &[Name], number: u32) -> &[u32] {
    match names.get(number as usize) {
        Some(name) => &name.key,
        None => &[],
    }
}

// All names' numbers in order: each is put in front of the first name that is after its own.
pub(crate) fn in_order(heap: Global, names: &[Name]) -> Result<Vec<u32>, AllocError> {
    let mut list = Vec::new(heap);
    for (place, name) in names.iter().enumerate() {
        let mut at = list.len();
        for (k, other) in list.iter().enumerate() {
            if compare(key_of(names, *other), &name.key).is_gt() {
                at = k;
                break;
            }
        }
        list.insert(at.min(list.len()), number(place))?;
    }
    Ok(list)
}

// What is found in a list, and how many names of it are before that.
#[derive(Drop)]
pub(crate) struct Found {
    pub(crate) numbers: Vec<u32>,
    pub(crate) before: usize,
}

// The numbers of a list whose names' first rows begin as that of what is asked.
pub(crate) fn part(
    heap: Global,
    names: &[Name],
    places: &[u32],
    asked: &Name,
) -> Result<Found, AllocError> {
    let mut part = Found {
        numbers: Vec::new(heap),
        before: 0,
    };
    if asked.refusal.is_some() {
        return Ok(part);
    }
    for number in places {
        if let Some(name) = names.get(*number as usize) {
            if begins(&name.row, &asked.row) {
                part.numbers.push(*number)?;
            } else if compare(&name.row, &asked.row).is_lt() {
                part.before = part.before.saturating_add(1);
            }
        }
    }
    Ok(part)
}

// Enough to make the lists again.
impl fmt::Display for Lists {
    fn fmt<W: fmt::Write>(&self, f: &mut fmt::Formatter<W>) -> fmt::Result {
        let text = &self.text;
        let starts = &self.starts;
        let places = &self.places;
        write!(f, "text {text:?}, starts {starts:?}, places {places:?}")
    }
}

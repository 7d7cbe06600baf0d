ghost use Rattle.std.specs.Prelude.{◌≡◌, ◌+◌, ◌*◌, ◌<◌, ◌≤◌, true, false, [], ◌∷◌, ◌++◌, length, if◌then◌else◌, Some, None, sum, MatchOption, is_ok, nat_eq, nat_le};
ghost use Rattle.buckets.specs.Builds.{over};
ghost use Rattle.records.specs.Records.{weight};
ghost use Rattle.pages.specs.Pages.{used, page_bytes};
ghost use Rattle.pages.specs.Gathered.{is_page_size, gathered, answer_of, page_head, pairs_by};

use crate::answer::PageAnswer;
use crate::builder::PageBuilder;
use crate::full::Full;
use arrayvec::ArrayVec;
use buckets::pair_bytes;
use records::{PAGE_HEAD, PAIR};

const MIN_SIZE: usize = 64;

const MAX_SIZE: usize = 4096;

// The count of records, the end mark and a zero.
fn head_bytes(count: u16, end: bool) -> [u8; 4]
    ensures { result ≡ page_head count end }
{
    let [a, b] = count.to_be_bytes();
    [a, b, u8::from(end), 0]
}

// The pairs of records of these lengths, the first of which starts at `start`. Places are counted, since
// the library does not say of a slice what its chunks leave it as.
fn write_pairs(buffer: &mut [u8], lens: &[u16], start: usize)
    requires { (4 + 4 * length lens.now ≤ length buffer.old) × (start + sum lens.now < 65536) }
    ensures { buffer.new ≡ over 4 (pairs_by start lens.now) buffer.old }
{
    let mut offset = start;
    for (n, len) in lens.iter().enumerate() {
        let at = PAGE_HEAD + PAIR * n;
        buffer[at..at + PAIR].copy_from_slice(&pair_bytes(offset as u16, *len));
        offset += usize::from(*len);
    }
}

impl PageBuilder {
    // An empty page, for a buffer of a lawful size.
    #[tactic(auto, unfolding(crate::specs::Gathered::gathered))]
    pub fn new(size: usize) -> Option<PageBuilder>
        ensures { MatchOption result (is_page_size size ≡ false) (λ page. (is_page_size size ≡ true) × (page.size ≡ size) × (gathered page ≡ [])) }
    {
        if !(MIN_SIZE..=MAX_SIZE).contains(&size) {
            return None;
        }
        Some(PageBuilder {
            size,
            lens: ArrayVec::new(),
            bytes: ArrayVec::new(),
        })
    }

    // Takes one more record, if it still fits with its pair.
    #[tactic(auto, using(crate::proofs::Cuts::load_cut, crate::proofs::Cuts::cut_push), unfolding(crate::specs::Gathered::gathered))]
    pub fn push(&mut self, item: &[u8]) -> Result<(), Full>
        ensures taken { is_ok result ≡ nat_le (used (gathered self.old) + weight item.now) self.old.size }
        ensures after { gathered self.new ≡ (if is_ok result then gathered self.old ++ item.now ∷ [] else gathered self.old) }
        ensures size { self.new.size ≡ self.old.size }
    {
        let left = self.size - (PAGE_HEAD + PAIR * self.lens.len() + self.bytes.len());
        if left < PAIR || left - PAIR < item.len() {
            return Err(Full);
        }
        self.bytes.try_extend_from_slice(item).unwrap();
        self.lens.push(item.len() as u16);
        Ok(())
    }

    // The page in a buffer of its size. Bytes beyond stay, and so does a buffer of another size.
    pub fn finish(&self, end: bool, buffer: &mut [u8]) -> Option<PageAnswer>
        ensures answer { result ≡ (if nat_eq (length buffer.old) self.now.size then Some (answer_of (gathered self.now) end) else None) }
        ensures page { buffer.new ≡ (if nat_eq (length buffer.old) self.now.size then page_bytes (gathered self.now) end buffer.old else buffer.old) }
    {
        if buffer.len() != self.size {
            return None;
        }
        let count = self.lens.len() as u16;
        let start = PAGE_HEAD + PAIR * self.lens.len();
        let used = start + self.bytes.len();
        buffer[..PAGE_HEAD].copy_from_slice(&head_bytes(count, end));
        write_pairs(buffer, &self.lens, start);
        buffer[start..used].copy_from_slice(&self.bytes);
        Some(PageAnswer {
            count,
            used: used as u16,
            end,
        })
    }
}

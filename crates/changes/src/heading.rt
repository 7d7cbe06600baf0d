ghost use Rattle.std.specs.Prelude.{◌≡◌, ℕ, List, ◌∷◌, MatchOption};
ghost use Rattle.kinds.specs.Kinds.{Kind};
ghost use Rattle.header.specs.Headers.{Encodes};
ghost use Rattle.index.specs.Stored.{Blocks, block};
ghost use Rattle.changes.specs.Making.{Pending, Headed};

use crate::table::Table;
use header::{Header, decode, encode, set_count};
use plans::Plan;

// The header block where a plan changes no bucket's prefix.
fn recount(plan: &Plan) -> [u8; 512]
    ensures { (old depth : ℕ) (slots : List ℕ) → Encodes old depth slots plan.now.header → Encodes plan.now.count depth slots result }
{
    let mut header = plan.header;
    set_count(&mut header, plan.count);
    header
}

// The header block where a plan changes prefixes.
fn reshape(plan: &Plan, numbers: &[u16]) -> Option<[u8; 512]>
    ensures { (kind : Kind) (blocks : Blocks) (head : ℕ) (old new : List (List ℕ)) (spare : List ℕ) → Pending kind blocks head old new plan.now spare → numbers.now ≡ plan.now.number ∷ spare → MatchOption result ⊥ (Headed kind (block blocks head) old new plan.now spare) }
{
    let old = decode(&plan.header)?;
    let mut table = Table {
        slots: *old.slots(),
        rooms: *old.rooms(),
    };
    table.relay(numbers, plan.laid.as_slice())?;
    let new = Header::new(plan.count, table.slots, table.rooms)?;
    Some(encode(&new))
}

// The header block after a plan, whose buckets go into blocks of these numbers.
pub(crate) fn head_after(plan: &Plan, numbers: &[u16]) -> Option<[u8; 512]>
    ensures { (kind : Kind) (blocks : Blocks) (head : ℕ) (old new : List (List ℕ)) (spare : List ℕ) → Pending kind blocks head old new plan.now spare → numbers.now ≡ plan.now.number ∷ spare → MatchOption result ⊥ (Headed kind (block blocks head) old new plan.now spare) }
{
    if plan.laid.len() == 1 && plan.room == plan.start {
        Some(recount(plan))
    } else {
        reshape(plan, numbers)
    }
}

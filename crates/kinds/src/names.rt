ghost use Rattle.kinds.specs.Names.{exact_names, fnv};
ghost use Rattle.kinds.specs.Bytewise.{by_bytes-total, alike_same, fnv_narrow};
ghost use Rattle.std.proofs.Common.{ap, rules};

use crate::kind::KeyKind;
use std::cmp::Ordering;

// All strings of 1 to 40 bytes, each another name.
#[derive(Clone, Copy)]
pub struct ExactNames;

const FNV_START: u32 = 0x811C_9DC5;

const FNV_PRIME: u32 = 0x0100_0193;

impl KeyKind for ExactNames {
    ghost kind = { exact_names };

    ghost ordered = { by_bytes-total };

    ghost level = { λ a b l m e. ap fnv (alike_same a b e) };

    ghost bounded = { Prim.search (rules, fnv_narrow) };

    fn is_lawful(key: &[u8]) -> bool {
        (1..=40).contains(&key.len())
    }

    // FNV-1a
    fn hash(key: &[u8]) -> u32 {
        let mut hash = FNV_START;
        for byte in key {
            hash = (hash ^ u32::from(*byte)).wrapping_mul(FNV_PRIME);
        }
        hash
    }

    #[tactic(auto, using(crate::specs::Bytewise::by_bytes_is))]
    fn compare(a: &[u8], b: &[u8]) -> Ordering {
        a.cmp(&b)
    }
}

ghost use Rattle.std.specs.Prelude.{◌≡◌, ℕ, ◌+◌, List, length, is_ok, if◌then◌else◌, nat_le, refl};
ghost use Rattle.std.proofs.Common.{◌∙◌};
ghost use Rattle.std.specs.List.{replace_range};
ghost use Rattle.device.specs.Laws.{BytesLaws, lent_bytes_laws};

use crate::refused::Refused;

// What a device lies in: bytes that it owns, or that are lent to it.
pub trait Bytes {
    ghost bytes: { Self → List ℕ };

    // What no write changes: whose bytes they are.
    ghost kept: { Self → Self → Type 0 };

    ghost laws: { BytesLaws kept };

    fn as_slice(&self) -> &[u8]
        ensures { result.now ≡ bytes self.now };

    // Writes `source` over the bytes from `start` on; a refusal, where it would reach past them, changes nothing.
    fn overwrite(&mut self, start: usize, source: &[u8]) -> Result<(), Refused>
        ensures served { is_ok result ≡ nat_le (start + length source.now) (length (bytes self.old)) }
        ensures sets { bytes self.new ≡ (if is_ok result then replace_range (bytes self.old) start (start + length source.now) source.now else bytes self.old) }
        ensures keeps { kept self.old self.new };
}

fn write_over(bytes: &mut [u8], start: usize, source: &[u8]) -> Result<(), Refused>
    ensures served { is_ok result ≡ nat_le (start + length source.now) (length bytes.old) }
    ensures sets { bytes.new ≡ (if is_ok result then replace_range bytes.old start (start + length source.now) source.now else bytes.old) }
{
    let last = bytes.len().checked_sub(source.len()).ok_or(Refused)?;
    if start > last {
        return Err(Refused);
    }
    bytes[start..start + source.len()].copy_from_slice(source);
    Ok(())
}

impl Bytes for Vec<u8> {
    ghost bytes = { λ v. v.items };

    ghost kept = { λ _ _. Unit {0} };

    ghost laws = { record { still = λ _. tt; onward = λ _ _ _ _ _. tt } };

    fn as_slice(&self) -> &[u8] {
        self
    }

    fn overwrite(&mut self, start: usize, source: &[u8]) -> Result<(), Refused> {
        write_over(self, start, source)
    }
}

impl<const N: usize> Bytes for [u8; N] {
    ghost bytes = { λ a. a };

    ghost kept = { λ _ _. Unit {0} };

    ghost laws = { record { still = λ _. tt; onward = λ _ _ _ _ _. tt } };

    fn as_slice(&self) -> &[u8] {
        self
    }

    fn overwrite(&mut self, start: usize, source: &[u8]) -> Result<(), Refused> {
        write_over(self, start, source)
    }
}

impl Bytes for &mut [u8] {
    ghost bytes = { λ r. r.now };

    ghost kept = { λ r s. r.ghost_name ≡ s.ghost_name };

    ghost laws = { record { still = λ _. refl; onward = λ _ _ _ p q. p ∙ q } };

    fn as_slice(&self) -> &[u8] {
        self
    }

    fn overwrite(&mut self, start: usize, source: &[u8]) -> Result<(), Refused> {
        write_over(self, start, source)
    }
}

impl<B: Bytes> Bytes for &mut B {
    ghost bytes = { λ r. B.bytes r.now };

    ghost kept = { λ r s. (r.ghost_name ≡ s.ghost_name) × B.kept r.now s.now };

    ghost laws = { lent_bytes_laws (λ r. r.now) (λ r. r.ghost_name) B.laws };

    fn as_slice(&self) -> &[u8] {
        (**self).as_slice()
    }

    fn overwrite(&mut self, start: usize, source: &[u8]) -> Result<(), Refused> {
        (**self).overwrite(start, source)
    }
}

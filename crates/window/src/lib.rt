// A window over any device: block b is block start + b below.
#![tactic(auto)]

mod span;

ghost use Rattle.std.specs.Prelude.{◌≡◌, ◌+◌, ◌<◌, length, is_ok, IfOk, nat_lt};
ghost use Rattle.window.specs.View.{view, SameOutside};
ghost use Rattle.window.specs.Lawful.{owned_laws};

use device::{Device, Refused};
pub use span::Span;

// A window over a device of its own, or over one that is lent, as `Window<&mut D>`.
#[derive(Drop)]
pub struct Window<D> {
    below: D,
    span: Span,
}

// A window over a device that is lent. Its `new` asks for a `&mut`, so that a variable is lent and serves again afterwards.
pub type WindowMut<'a, D> = Window<&'a mut D>;

impl<D: Device> Window<D> {
    pub fn new(below: D, span: Span) -> Window<D>
        ensures device { result.below ≡ below }
        ensures blocks { result.span ≡ span }
    {
        Window { below, span }
    }

    // The device below again.
    pub fn into_device(self) -> D
        ensures { result ≡ self.below }
    {
        let Window { below, span: _ } = self;
        below
    }

    // The block below that is a block of the window.
    fn place(&self, block: u32) -> Result<u32, Refused>
        ensures served { is_ok result ≡ nat_lt block (length (view (D.Device.contents self.now.below) self.now.span)) }
        ensures within { IfOk result (λ place. (place ≡ self.now.span.start + block) × (block < length (view (D.Device.contents self.now.below) self.now.span)) × (place < length (D.Device.contents self.now.below))) }
    {
        if block >= self.count() {
            return Err(Refused);
        }
        Ok(self.span.start + block)
    }
}

impl<D: Device> Device for Window<D> {
    ghost contents = { λ w. view (D.Device.contents w.below) w.span };

    ghost allowed = { λ w. D.Device.allowed w.below };

    ghost kept = { λ w v. (w.span ≡ v.span) × (SameOutside w.span (D.Device.contents w.below) (D.Device.contents v.below) × D.Device.kept w.below v.below) };

    ghost laws = { owned_laws (λ w. w.below) (λ w. w.span) D.Device.laws };

    // None where the window reaches past the device below.
    fn count(&self) -> u32 {
        let Span { start, count } = self.span;
        let end = u64::from(start) + u64::from(count);
        if end <= u64::from(self.below.count()) {
            count
        } else {
            0
        }
    }

    fn allowance(&self) -> u32 {
        self.below.allowance()
    }

    fn read(&self, block: u32, buffer: &mut [u8]) -> Result<(), Refused> {
        let place = self.place(block)?;
        self.below.read(place, buffer)
    }

    fn write(&mut self, block: u32, source: &[u8]) -> Result<(), Refused> {
        let place = self.place(block)?;
        self.below.write(place, source)
    }
}

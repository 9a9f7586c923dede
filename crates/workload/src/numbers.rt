// The numbers of an input, one after the other.
ghost use Rattle.std.specs.Prelude.{◌≡◌, ◌≤◌, IfSome, OnSome, IfNone, length};
ghost use Rattle.workload.specs.Numbers.{number_before};
ghost use Rattle.slices.specs.Cut.{after};

// What of an input is still to be read.
#[derive(Clone, Copy)]
pub struct Numbers<'a> {
    pub rest: &'a [u8],
}

impl<'a> Numbers<'a> {
    pub fn new(input: &'a [u8]) -> Self
        ensures { result.rest.now ≡ input.entry.now }
    {
        Self { rest: input }
    }

    // The number before the first `stop`, of at most `most`; what stands past it is left. Nothing is read where there is none.
    pub fn read(&mut self, stop: u8, most: u64) -> Option<u64>
        ensures number { result ≡ number_before stop most self.old.rest.now }
        ensures within { IfSome result (λ n. n ≤ most) }
        ensures past { OnSome result (self.new.rest.now ≡ after stop self.old.rest.now) }
        ensures shorter { length self.new.rest.now ≤ length self.old.rest.now }
        ensures refused { IfNone result (self.new.rest.now ≡ self.old.rest.now) }
    {
        let end = slices::find(self.rest, stop)?;
        let number = number::read_decimal(slices::front(self.rest, end), most).ok()?;
        self.rest = slices::past(self.rest, end);
        Some(number)
    }
}

// A guard over the sixteen working words: at its end they are zero.
ghost use Rattle.std.specs.Prelude.{◌≡◌, replicate};

pub struct Wiped<'a>(pub &'a mut [u32; 16]);

impl Drop for Wiped<'_> {
    fn drop(self)
        ensures { self.exit.0.now ≡ replicate 16 0 }
    {
        *self.0 = [0; 16];
        let Wiped(_) = self;
    }
}

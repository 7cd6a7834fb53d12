// What a line is made of, on a page: a buffer that the caller lends, and the place in it where the next byte goes. Each
// method puts its text there, and moves the place just past it.
// How much room a page must have differs with what is put, so each asks for its own.
#![tactic(auto)]

ghost use Rattle.std.specs.Prelude.{◌≡◌, ◌+◌, [], ◌∷◌, ◌++◌, length};
ghost use Rattle.cells.specs.Decimal.{decimal};
ghost use Rattle.cells.specs.Pages.{Room, Put};

#[derive(Drop)]
pub struct Page<'a> {
    pub out: &'a mut [u8],
    pub at: usize,
}

impl<'a> Page<'a> {
    // The start of a buffer.
    pub fn new(out: &'a mut [u8]) -> Page<'a>
        ensures same_buffer { result.out.ghost_name ≡ out.entry.ghost_name }
        ensures same_bytes { result.out.now ≡ out.old }
        ensures start { result.at ≡ 0 }
    {
        Page { out, at: 0 }
    }

    fn put_byte(&mut self, b: u8)
        requires { Room 1 self.old }
        ensures { Put 1 self.old self.new (b ∷ []) }
    {
        self.out[self.at] = b;
        self.at += 1;
    }

    // The decimal digits of n.
    fn put_decimal(&mut self, n: u32)
        requires { Room (length (decimal n)) self.old }
        ensures { Put (length (decimal n)) self.old self.new (decimal n) }
    {
        let end = self.at + n.max(1).ilog10() as usize + 1;
        itoa::write_digits(n as u64, self.out, end);
        self.at = end;
    }

    // The bytes of s.
    #[tactic(auto, using(crate::proofs::Pages::put_copied))]
    pub fn put_all(&mut self, s: &[u8])
        requires { Room (length s.now) self.old }
        ensures { Put (length s.now) self.old self.new s.now }
    {
        let end = self.at + s.len();
        self.out[self.at..end].copy_from_slice(s);
        self.at = end;
    }

    // A number, and a byte after it.
    pub fn put_cell(&mut self, n: u32, b: u8)
        requires { Room 11 self.old }
        ensures { Put 11 self.old self.new (decimal n ++ b ∷ []) }
    {
        self.put_decimal(n);
        self.put_byte(b);
    }

    // Bytes that name a number, the number, and a byte after it.
    pub fn put_named(&mut self, name: &[u8], n: u32, b: u8)
        requires { Room (length name.now + 11) self.old }
        ensures { Put (length name.now + 11) self.old self.new
            (name.now ++ (decimal n ++ b ∷ [])) }
    {
        self.put_all(name);
        self.put_cell(n, b);
    }
}

ghost use Rattle.std.specs.Prelude.{◌≡◌, ◌≤◌, length};

// A text in octets that the caller lends, from the first of them on or behind some. What does not fit is left out.
#[derive(Drop)]
pub struct Text<'a> {
    octets: &'a mut [u8],
    end: usize,
    ghost within: { end ≤ length octets.now },
}

impl<'a> Text<'a> {
    ghost use Rattle.std.specs.Prelude.{◌∷◌, take};
    ghost use Rattle.octets.specs.Fields.{flat};
    ghost use Rattle.io.specs.Digits.{last_digits};
    ghost use Rattle.console.specs.Text.{HexGiven, start_of, decimal, spaced};
    ghost use Rattle.console.specs.Texts.{Puts};

    // An empty one.
    pub fn new(octets: &'a mut [u8]) -> Text<'a>
        ensures same { result.octets.ghost_name ≡ octets.entry.ghost_name }
        ensures octets { result.octets.now ≡ octets.old }
        ensures empty { result.end ≡ 0 }
    {
        Text { octets, end: 0 }
    }

    // One that goes on behind the first so many octets; more than there are count as all.
    #[tactic(auto, unfolding(crate::specs::Text::start_of))]
    pub fn at(octets: &'a mut [u8], at: usize) -> Text<'a>
        ensures same { result.octets.ghost_name ≡ octets.entry.ghost_name }
        ensures octets { result.octets.now ≡ octets.old }
        ensures start { result.end ≡ start_of octets.old at }
    {
        let end = at.min(octets.len());
        Text { octets, end }
    }

    // How many octets it has.
    pub fn len(&self) -> usize
        ensures { result ≡ self.now.end }
    {
        self.octets().len()
    }

    // Its octets.
    pub fn octets(&self) -> &[u8]
        ensures { result.now ≡ take self.now.end self.now.octets.now }
    {
        &self.octets[..self.end]
    }

    // Octets behind it.
    pub fn put(&mut self, text: &[u8])
        ensures { Puts self.old text.now self.new }
    {
        let n = text.len().min(self.octets.len() - self.end);
        self.octets[self.end..self.end + n].copy_from_slice(&text[..n]);
        self.end += n;
    }

    // A number in decimal.
    pub fn put_decimal(&mut self, n: u64)
        ensures { Puts self.old (decimal n) self.new }
    {
        let mut text = [0u8; 20];
        let k = io::decimal(n, &mut text);
        self.put(&text[..k]);
    }

    // A space, and a number in decimal behind it.
    pub fn put_number(&mut self, n: u64)
        ensures { Puts self.old (spaced n) self.new }
    {
        self.put(b" ");
        self.put_decimal(n);
    }

    // A number in so many hexadecimal digits.
    fn put_hex(&mut self, n: u64, width: usize)
        requires { HexGiven n width }
        ensures { Puts self.old (last_digits 16 width n) self.new }
    {
        let mut text = [0u8; 16];
        let k = io::hex(n, width, &mut text);
        self.put(&text[..k]);
    }

    // A StreamID: 16 hexadecimal digits.
    pub fn put_id(&mut self, id: u64)
        ensures { Puts self.old (last_digits 16 16 id) self.new }
    {
        self.put_hex(id, 16);
    }

    // Octets, two hexadecimal digits each.
    pub fn put_octets(&mut self, octets: &[u8])
        ensures { Puts self.old (flat (last_digits 16 2) octets.now) self.new }
    {
        for octet in octets {
            self.put_hex(*octet as u64, 2);
        }
    }
}

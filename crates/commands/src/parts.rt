// A command with its parameters, under DVItype's names.

#[derive(Clone, Copy)]
pub enum Command<'a> {
    // a code set or put: set_char_0 to set_char_127, set1 to set4; put1 to put4
    Set { code: i64 },
    Put { code: i64 },
    SetRule { height: i64, width: i64 },
    PutRule { height: i64, width: i64 },
    Nop,
    Eop,
    Push,
    Pop,
    // moves by a parameter of 1 to 4 bytes, and by the registers as they stand
    Right(i64),
    W0,
    W(i64),
    X0,
    X(i64),
    Down(i64),
    Y0,
    Y(i64),
    Z0,
    Z(i64),
    // fnt_num_0 to fnt_num_63, fnt1 to fnt4: a font number
    Fnt(u32),
    // a special, which is passed over
    Xxx,
    FntDef(Definition<'a>),
    // a byte that is no command of a page or a packet
    Undefined,
}

// A font definition. Its name is borrowed from the bytes.
#[derive(Clone, Copy)]
pub struct Definition<'a> {
    pub number: u32,
    pub checksum: u32,
    pub size: u32,
    pub design: u32,
    pub name: &'a [u8],
}

// What the first byte of a command says: its kind, and in how many bytes its parameter stands, 0 where it has none. The two
// are a pair, since every kind with a parameter reads its width alike: a width in each case would be matched out ten times.
ghost use Rattle.std.specs.Prelude.{◌≡◌, ◌≤◌};
ghost use Rattle.commands.specs.Kinds.{kind_of};

#[derive(Clone, Copy)]
pub enum Kind {
    SetChar,
    Set,
    SetRule,
    Put,
    PutRule,
    Nop,
    Eop,
    Push,
    Pop,
    Right,
    W0,
    W,
    X0,
    X,
    Down,
    Y0,
    Y,
    Z0,
    Z,
    FntNum,
    Fnt,
    Xxx,
    FntDef,
    Undefined,
}

pub(crate) fn kind_of(op: u8) -> (Kind, usize)
    ensures is { result ≡ kind_of op }
    ensures few { result.1 ≤ 4 }
{
    match op {
        0..=127 => (Kind::SetChar, 0),
        128..=131 => (Kind::Set, usize::from(op) - 127),
        132 => (Kind::SetRule, 0),
        133..=136 => (Kind::Put, usize::from(op) - 132),
        137 => (Kind::PutRule, 0),
        138 => (Kind::Nop, 0),
        140 => (Kind::Eop, 0),
        141 => (Kind::Push, 0),
        142 => (Kind::Pop, 0),
        143..=146 => (Kind::Right, usize::from(op) - 142),
        147 => (Kind::W0, 0),
        148..=151 => (Kind::W, usize::from(op) - 147),
        152 => (Kind::X0, 0),
        153..=156 => (Kind::X, usize::from(op) - 152),
        157..=160 => (Kind::Down, usize::from(op) - 156),
        161 => (Kind::Y0, 0),
        162..=165 => (Kind::Y, usize::from(op) - 161),
        166 => (Kind::Z0, 0),
        167..=170 => (Kind::Z, usize::from(op) - 166),
        171..=234 => (Kind::FntNum, 0),
        235..=238 => (Kind::Fnt, usize::from(op) - 234),
        239..=242 => (Kind::Xxx, usize::from(op) - 238),
        243..=246 => (Kind::FntDef, usize::from(op) - 242),
        139 | 247..=255 => (Kind::Undefined, 0),
    }
}

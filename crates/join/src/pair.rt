// Two open sheets with free ends, which join hands on once 16 is asked. What is known of them stands in the type. (That a sheet's bytes are below 256 the
// check knows of a slice, and not of one inside a struct.)
ghost use Rattle.std.specs.Prelude.{◌≡◌, ℕ, ◌<◌};
ghost use Rattle.sheet.specs.Bytes.{byte};
ghost use Rattle.ends.specs.declared.EndKind.TheVariants.{Free};

use answers::OpenSheet;

#[derive(Clone, Copy)]
pub struct FreePair<'a> {
    pub first: OpenSheet<'a>,
    pub second: OpenSheet<'a>,
    pub ghost first_free: { first.kind ≡ Free },
    pub ghost second_free: { second.kind ≡ Free },
    pub ghost first_bytes: { (i : ℕ) → byte first.bytes.now i < 256 },
    pub ghost second_bytes: { (i : ℕ) → byte second.bytes.now i < 256 },
}

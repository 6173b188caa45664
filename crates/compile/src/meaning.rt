// What filters mean.
ghost use Rattle.compile.specs.Meaning.{Faithful};

// A filter that stores a reading has its value, for a test and for a binary.
pub fn filters_are_faithful() -> u8
    ensures { Faithful }
{
    0
}

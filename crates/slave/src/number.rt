// The number of a slave.
ghost use Rattle.std.specs.Prelude.{◌<◌};
ghost use Rattle.protocol.specs.Limits.{id_count};

// "IDL0 to IDL7" give the numbers 0 to 7.
#[derive(Clone, Copy)]
pub struct Number {
    pub value: u64,
    pub ghost is_id: { value < id_count },
}

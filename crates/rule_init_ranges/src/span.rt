// A run of a buffer's bytes.
ghost use Rattle.std.specs.Prelude.{◌+◌, ◌^◌, ◌<◌};

// `bytes` from `offset` on. They end so low that 64 bits hold the next multiple of 4.
#[derive(Clone, Copy)]
pub struct BufferSpan {
    pub offset: u64,
    pub bytes: u64,
    pub ghost low: { offset + bytes < 2 ^ 63 },
}

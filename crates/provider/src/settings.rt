ghost use Rattle.std.specs.Prelude.{◌≤◌};
ghost use Rattle.histories.specs.Provider.{most_records};

use codec::invocation::Identifier;

pub(crate) mod checks;

// The longest latency limit, in ticks.
pub const LONGEST_LATENCY: u32 = 3600;

// The highest version.
pub const HIGHEST_VERSION: u32 = 255;

// What an opening asks for, unchecked.
#[derive(Clone, Copy)]
pub struct Opening<'a> {
    pub buffer_size: u32,
    pub latency_limit: u32,
    pub version: u32,
    pub identifier: &'a [u8],
}

// What a provider is opened with: how many records make a full transfer buffer, how many active ticks a record may
// wait there, the provider's version, and the identifier that a BIND has to bring.
#[derive(Clone, Copy)]
pub struct Settings {
    pub(crate) buffer_size: usize,
    pub(crate) latency_limit: u32,
    pub(crate) version: u8,
    pub(crate) identifier: Identifier,
    ghost few: { buffer_size ≤ most_records },
}

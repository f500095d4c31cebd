ghost use Rattle.std.specs.Prelude.{◌≡◌, ◌+◌, ◌≤◌, length};
ghost use Rattle.codec.specs.Octets.{Octets};
ghost use Rattle.codec.specs.Blocks.{block_at, placed};

// The so many octets from a place on, as a part of the input.
#[tactic(auto, using(crate::proofs::Slices::octets_typed))]
pub(crate) fn block_at<'a>(input: &'a [u8], place: usize, count: usize) -> &'a [u8]
    requires { place + count ≤ length input.now }
    ensures octets { result.now ≡ block_at input.now place count }
    ensures long { length result.now ≡ count }
    ensures typed { Octets input.now }
{
    &input[place..place + count]
}

// Copies a block to a place of a buffer, and leaves the rest.
#[tactic(auto, using(crate::proofs::Placing::put_mid_placed))]
pub(crate) fn place_block(out: &mut [u8], place: usize, block: &[u8])
    requires { place + length block.now ≤ length out.old }
    ensures { out.new ≡ placed out.old place block.now }
{
    out[place..place + block.len()].copy_from_slice(block);
}

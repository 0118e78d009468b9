//! What holds of the tool's answers together, of buffers alone and of size-prefixed ones.
ghost use Rattle.flatc_tool.specs.Headline.{JsonIsCarried, OtherJsonIsRefused, OthersAreRefused};
ghost use Rattle.flatc_tool.specs.Chains.{OldProgramsRead, ChainsConform, ChainsCarry};
ghost use Rattle.flatc_tool.specs.Names.{OldTextsAreRead, OldTextsAreCarried};
ghost use Rattle.flatc_tool.specs.Streams.{StreamsAreSplit};

use crate::laws::layer_laws;

/// Whatever bytes `to_binary` or `encode` returns for a schema and a JSON text hold the value that the
/// JSON means and no other, with only slots in use. `to_json`, `decode`, `check`, `verify_framed` and
/// `read_framed` return for them what is that value's, or run out of memory, and so do `to_json` and
/// `decode` under a new schema that conforms.
pub fn json_is_carried()
    ensures { JsonIsCarried }
{
    layer_laws();
}

/// JSON that means no value is refused with its first fault, at its place, and a text that isn't JSON as such: by
/// `to_binary` and `encode`.
pub fn other_json_is_refused()
    ensures { OtherJsonIsRefused }
{
    layer_laws();
}

/// Bytes that encode no value are refused with the least fault, whose rule fails at a place that
/// is reached: by `to_json`, `decode`, `check`, `print_to` and `decode_to`.
pub fn others_are_refused()
    ensures { OthersAreRefused }
{
    layer_laws();
}

/// Whatever bytes `to_binary` or `encode` returns under a new schema hold, under an old one that it conforms to,
/// the value without what the old one doesn't know.
pub fn old_programs_read()
    ensures { OldProgramsRead }
{
    layer_laws();
}

/// Schema texts that conform one by one conform from the first to the last.
pub fn chains_conform()
    ensures { ChainsConform }
{
    layer_laws();
}

/// Whatever bytes `to_binary` or `encode` returns under the first of schema texts that conform one by
/// one hold, under the last, the value carried from each to the next.
pub fn chains_carry()
    ensures { ChainsCarry }
{
    layer_laws();
}

/// Under a new schema text that keeps names, a JSON text of the old one means the value carried, if it
/// names nothing that is renamed or deprecated.
pub fn old_texts_are_read()
    ensures { OldTextsAreRead }
{
    layer_laws();
}

/// Whatever bytes `to_binary` or `encode` returns, under a new schema text that keeps names, for a JSON
/// text that means a value under the old one hold that value, carried.
pub fn old_texts_are_carried()
    ensures { OldTextsAreCarried }
{
    layer_laws();
}

/// Size-prefixed buffers that `encode` returns, written one after the other, are split by
/// `split_prefixed` into exactly these. Of each the laws above hold, where `prefixed` is true.
pub fn streams_are_split()
    ensures { StreamsAreSplit }
{
    layer_laws();
}

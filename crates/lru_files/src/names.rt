// The names of files.
ghost use Rattle.std.specs.Prelude.{◌≡◌, IfOk, string_bytes};
ghost use Rattle.lru_files.specs.Names.{hex_word, shard_path, temp_path};

use std::alloc::{AllocError, Global};

/// Returns the word as eight hex digits in lower case.
pub fn hex_word(alloc: Global, word: u32) -> Result<String, AllocError>
    ensures { IfOk result (λ text. string_bytes text ≡ hex_word word) }
{
    let a = word / 0x1000_0000 % 16;
    let b = word / 0x0100_0000 % 16;
    let c = word / 0x0010_0000 % 16;
    let d = word / 0x0001_0000 % 16;
    let e = word / 0x1000 % 16;
    let f = word / 0x0100 % 16;
    let g = word / 0x0010 % 16;
    let h = word % 16;
    format!(in alloc; "{a:x}{b:x}{c:x}{d:x}{e:x}{f:x}{g:x}{h:x}")
}

/// `dir/file_name.shard`
pub fn shard_path(
    alloc: Global,
    dir: &str,
    file_name: &str,
    shard: usize,
) -> Result<String, AllocError>
    ensures { IfOk result (λ path. string_bytes path ≡ shard_path dir.now file_name.now shard) }
{
    format!(in alloc; "{dir}/{file_name}.{shard}")
}

/// `dir/file_name.shard.word.tmp`, the word in hex.
pub fn temp_path(
    alloc: Global,
    dir: &str,
    file_name: &str,
    shard: usize,
    word: u32,
) -> Result<String, AllocError>
    ensures { IfOk result (λ path. string_bytes path ≡ temp_path dir.now file_name.now shard word) }
{
    let word = hex_word(alloc, word)?;
    format!(in alloc; "{dir}/{file_name}.{shard}.{word}.tmp")
}

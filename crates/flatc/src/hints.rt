//! What to write in place of an option of Google's flatc.

/// The options for code that Google's flatc generates.
const GENERATORS: [&str; 26] = [
    "--cpp",
    "-c",
    "--csharp",
    "-n",
    "--dart",
    "-d",
    "--go",
    "-g",
    "--java",
    "-j",
    "--js",
    "-s",
    "--kotlin",
    "--lobster",
    "--lua",
    "-l",
    "--nim",
    "--php",
    "--python",
    "-p",
    "--rust",
    "-r",
    "--swift",
    "--ts",
    "-T",
    "--grpc",
];

/// The hint for a word.
fn hint_of(word: &str) -> Option<&'static str> {
    if GENERATORS.contains(&word) {
        return Some("this program converts and checks; for generated code use Google's flatc");
    }
    Some(match word {
        "-b" | "--binary" => "use: flatc binary SCHEMA JSON OUT",
        "-t" | "--json" => "use: flatc json SCHEMA BIN",
        "--conform" => "use: flatc conform OLD NEW",
        "--schema" => "to check a schema, use: flatc check SCHEMA",
        "-I" | "--conform-includes" =>
            "include isn't supported: put all declarations into one text",
        "--annotate" => "to see what the bytes of a buffer are, use: flatc inspect SCHEMA BIN",
        "--strict-json" => "JSON is always strict: flatc json SCHEMA BIN",
        _ => return None,
    })
}

/// The hint for the first word that has one.
pub(crate) fn hint_for(words: &[String]) -> Option<&'static str> {
    words.iter().find_map(|word| hint_of(word.as_str()))
}

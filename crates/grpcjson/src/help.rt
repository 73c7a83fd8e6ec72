//! What `--help` and `--version` print.

/// What the program does, by command.
const HELP: &str = "\
grpcjson: a gRPC-JSON transcoding gateway

usage: grpcjson COMMAND WORD...

  bind SET METHOD TARGET   prints the gRPC path and the framed messages that an HTTP request means; its body is read
                           from standard input
  check SET                prints how many bindings the set has
  routes SET               prints a line for each binding: HTTP method, template, gRPC path, body, response
  --help, -h               prints this text
  --version, -V            prints the version

SET is a file that `protoc --include_imports --descriptor_set_out` writes. The statuses are 0 done,
2 usage, 3 descriptors, 4 read fault, 5 write fault, 7 out of memory, 9 refused.
";

/// The program's name and version.
const VERSION: &str = "grpcjson 0.1.0\n";

/// The text that the words ask for, where they ask for one: `--help` alone or behind a command, or
/// `--version` alone.
pub(crate) fn help_of(words: &[String]) -> Option<&'static str> {
    match words {
        [word] => match word.as_str() {
            "--help" | "-h" => Some(HELP),
            "--version" | "-V" => Some(VERSION),
            _ => None,
        },
        [command, word] => match (command.as_str(), word.as_str()) {
            ("bind" | "check" | "routes", "--help" | "-h") => Some(HELP),
            _ => None,
        },
        _ => None,
    }
}

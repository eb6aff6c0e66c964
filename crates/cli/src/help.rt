//! What help ends with, and what `--version` prints. The statuses are those of docs/FORMATS.md, and the files of the
//! examples those of the repository.

/// The program's version, and the logic that it is proved in, as `rt version` prints its sum.
pub(crate) const VERSION: &str = "1.0.0\nrattle logic dac8208d650f15bf";

/// What the help of the program ends with.
pub(crate) const EXIT_STATUSES: &str = "\
The help of a subcommand ends with an example, over files in the repository's folder `examples`.

Exit statuses:
  0  All is written, and all is good
  1  A capture is not good, or a log or a path is not complete
  2  The arguments or an input are refused, or a log is illegal
  3  A file, the output or memory failed, or a run stopped early
An input is the image, the symbols, a log, the schedule, SENT or LINES.";

/// What the help of `check` ends with.
pub(crate) const CHECK_EXAMPLE: &str = "\
Example:
  tracebench check --base 80000000 examples/loop/image.bin examples/loop/log.csv";

/// What the help of `encode` ends with.
pub(crate) const ENCODE_EXAMPLE: &str = "\
Example:
  tracebench encode --base 80000000 examples/loop/image.bin examples/loop/log.csv >log.capture";

/// What the help of `dump` ends with.
pub(crate) const DUMP_EXAMPLE: &str = "\
Example:
  tracebench dump examples/loop/log.capture";

/// What the help of `decode` ends with.
pub(crate) const DECODE_EXAMPLE: &str = "\
Example:
  tracebench decode --base 80000000 examples/loop/image.bin examples/loop/log.capture";

/// What the help of `replay` ends with.
pub(crate) const REPLAY_EXAMPLE: &str = "\
Example:
  tracebench replay --base 80000000 examples/two_harts/image.bin examples/two_harts/turns.txt \\
    examples/two_harts/hart00.csv examples/two_harts/hart01.csv";

/// What the help of `bench` ends with.
pub(crate) const BENCH_EXAMPLE: &str = "\
Example:
  tracebench bench --base 80000000 examples/two_harts/image.bin \\
    examples/two_harts/hart00.csv examples/two_harts/hart01.csv";

/// What the help of `audit` ends with.
pub(crate) const AUDIT_EXAMPLE: &str = "\
Example:
  tracebench audit examples/two_harts/both.capture examples/two_harts/both.capture";

/// What the help of `measure` ends with.
pub(crate) const MEASURE_EXAMPLE: &str = "\
Example:
  tracebench measure --base 80000000 --period 64 examples/loop/image.bin examples/loop/log.csv";

/// What the help of `list` ends with.
pub(crate) const LIST_EXAMPLE: &str = "\
Example:
  tracebench list --base 80000000 examples/loop/image.bin examples/loop/log.capture";

/// What the help of `capture` ends with.
pub(crate) const CAPTURE_EXAMPLE: &str = "\
Example:
  tracebench capture examples/first/hex.txt >log.capture";

/// What the help of `compare` ends with.
pub(crate) const COMPARE_EXAMPLE: &str = "\
Example:
  tracebench compare --base 80000000 examples/loop/image.bin examples/loop/log.capture examples/loop/log.csv";

/// What the help of `generate` ends with.
pub(crate) const GENERATE_EXAMPLE: &str = "\
Example:
  tracebench generate capture --harts 4 --messages 1000 >sent.capture";

/// What the help of `salvage` ends with.
pub(crate) const SALVAGE_EXAMPLE: &str = "\
Example:
  tracebench salvage --base 80000000 examples/loop/image.bin examples/loop/log.capture";

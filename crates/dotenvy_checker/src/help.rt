//! What the program prints of itself.

ghost use Rattle.std.specs.Prelude.{◌≡◌};
ghost use Rattle.dotenvy_checker.specs.Help.{help_text, version_text};

/// How the program is called.
pub(crate) fn help() -> &'static str
    ensures { result.now ≡ help_text }
{
    "Usage: dotenvy_check [OPTION].. [FILE]..\n\
     \n\
     Says on which lines of environment files something is wrong.\n\
     Without a FILE it checks the .env of the current directory, or of the nearest\n\
     directory above it that has one. The FILE - is standard input. Of a folder it\n\
     checks the files right in it that are called .env, .env.SUFFIX or PREFIX.env.\n\
     \n\
     \x20     --next                read the files in the second dialect\n\
     \x20     --strict              count a warning as a fault, for the status\n\
     \x20     --allow KIND          report no warning of this kind\n\
     \x20     --deny KIND           count a warning of this kind as a fault\n\
     \x20     --known NAME          take it that NAME has a value\n\
     \x20     --ignore-environment  take no names from the environment\n\
     \x20     --together            let each file use the names of the files before it\n\
     \x20     --schema FILE         compare the names with those that FILE declares\n\
     \x20     --exclude NAME        leave out the files called NAME in folders\n\
     \x20     --format FORMAT       write the report as text, github, sarif or json\n\
     \x20     --text                print what a load says of each error, too\n\
     \x20 -q, --quiet               print nothing of the files\n\
     \x20 -h, --help                print this text\n\
     \x20 -V, --version             print the version\n\
     \x20     --                    end the options: each word after it is a FILE\n\
     \n\
     The options --allow, --deny, --known and --exclude may be given more than once.\n\
     A KIND stands in brackets at the end of a line of the report, as [own-name]. An\n\
     error can't be allowed. Without --format the report is text.\n\
     \n\
     The status is 0 if no file has a fault, 1 if one has, and 2 if a file can't be\n\
     read, the words are wrong, or the report can't be written.\n"
}

/// The version of the program.
pub(crate) const VERSION: &str = "1.0.0";

/// Which version the program is.
pub(crate) fn version() -> &'static str
    ensures { result.now ≡ version_text }
{
    "dotenvy_check 1.0.0\n"
}

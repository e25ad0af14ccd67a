//! What the program prints of itself.

ghost use Rattle.std.specs.Prelude.{◌≡◌};
ghost use Rattle.dotenvy_export_command.specs.Help.{help_text, version_text};

/// How the program is called.
pub(crate) fn help() -> &'static str
    ensures { result.now ≡ help_text }
{
    "Usage: dotenvy_export TARGET [OPTION].. [FILE]..\n\
     \n\
     Writes the names that environment files declare, with their values, so that the\n\
     TARGET reads exactly these. The names are in byte order. A name that the\n\
     environment has, or a file before, keeps its value.\n\
     Without a FILE it takes the .env of the current directory, or of the nearest\n\
     directory above it that has one. A FILE without a / is searched in the same way.\n\
     The FILE - is standard input.\n\
     \n\
     The TARGET is one of\n\
     \x20 docker                docker run --env-file\n\
     \x20 kubernetes            kubectl create configmap or secret, --from-env-file\n\
     \x20 systemd               EnvironmentFile= of a unit\n\
     \x20 sh                    a POSIX shell, by eval or .\n\
     \x20 json                  one object of texts\n\
     \x20 exec                  dotenvy_exec\n\
     \n\
     \x20     --next                read the files in the second dialect\n\
     \x20     --override            let each file replace the values before it\n\
     \x20     --ignore-environment  begin with an empty environment\n\
     \x20     --optional FILE       as a FILE there, but it may be absent\n\
     \x20     --skip-reserved       leave out the names that shells keep for themselves,\n\
     \x20                           and warn of each; for sh, which else refuses them\n\
     \x20 -h, --help                print this text\n\
     \x20 -V, --version             print the version\n\
     \x20     --                    end the options: a word after it is TARGET or a FILE\n\
     \n\
     The option --optional may be given more than once.\n\
     \n\
     The status is 0 if all is written, 1 if a file can't be read or has a fault, the\n\
     TARGET can't be given a name or a value, or standard output can't be written,\n\
     and 2 if the words are wrong. Nothing is written unless all of it is known.\n"
}

/// Which version the program is.
pub(crate) fn version() -> &'static str
    ensures { result.now ≡ version_text }
{
    "dotenvy_export 1.0.0\n"
}

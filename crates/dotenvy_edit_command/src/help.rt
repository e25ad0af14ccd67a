//! What the program prints of itself.

ghost use Rattle.std.specs.Prelude.{◌≡◌};
ghost use Rattle.dotenvy_edit_command.specs.Help.{help_text, version_text};

/// How the program is called.
pub(crate) fn help() -> &'static str
    ensures { result.now ≡ help_text }
{
    "Usage: dotenvy_edit set [OPTION].. FILE NAME [VALUE]\n\
     \x20      dotenvy_edit get [OPTION].. FILE NAME\n\
     \x20      dotenvy_edit unset [OPTION].. FILE NAME..\n\
     \x20      dotenvy_edit rename [OPTION].. FILE OLD NEW\n\
     \n\
     Sets, prints, removes or renames a name of an environment file. All other bytes\n\
     stay as they are. Without a VALUE, or if it is -, the value is what standard\n\
     input has, without one line feed at its end.\n\
     \n\
     \x20     --next      read the file in the second dialect\n\
     \x20     --portable  for set: write what other libraries read alike, or refuse it\n\
     \x20     --create    for set: make the FILE if it is absent, for its owner alone\n\
     \x20     --dry-run   print what would change, with the values, and write no file\n\
     \x20     --exact     for set: take all of standard input, to its last line feed\n\
     \x20 -q, --quiet     print no warnings\n\
     \x20 -h, --help      print this text\n\
     \x20 -V, --version   print the version\n\
     \x20     --          end the options: each word after it is none\n\
     \n\
     The status is 0 if it is done, 1 if the name isn't there or the call is refused,\n\
     and 2 if the words are wrong, or something can't be read or written. The file is\n\
     replaced as a whole, or it stays as it was.\n"
}

/// Which version the program is.
pub(crate) fn version() -> &'static str
    ensures { result.now ≡ version_text }
{
    "dotenvy_edit 1.0.0\n"
}

//! What a reader of JSON finds in reports. A law is the contract of a function that does nothing.

ghost use Rattle.dotenvy_reports.specs.Laws.{DocumentsArePrinted, DocumentsReadBack, JsonReadsBack};

/// A reader of JSON finds in the line of a report the tokens that were written, and no others.
///
/// ```text
/// // {"file":".env","line":1,..}: the key `file`, the text `.env`, the key `line`, the number `1`, ..
/// ```
pub fn json_reads_back()
    ensures { JsonReadsBack }
{}

/// A document of SARIF is one text of JSON: what `push_sarif_start` appends, then results with a comma between two of
/// them, and what `push_sarif_end` appends. A reader finds in it the tokens that were written, and no others.
///
/// ```text
/// // {"$schema":..,"runs":[{..,"results":[{..},{..}]}]}
/// ```
pub fn documents_read_back()
    ensures printed { DocumentsArePrinted }
    ensures read { DocumentsReadBack }
{}

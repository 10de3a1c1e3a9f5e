// The reading machine: a language of readers, what its programs mean, and the laws of all programs. It knows no format, and nothing runs here.
// specs/Machine.antt is the language, specs/Example.antt a format of ten lines, proofs/Page.antt the laws on one page.
#![tactic(auto)]

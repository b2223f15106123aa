// That the contract of every public function of a library leaves one answer. There is no code here: see specs/ and proofs/. It stands
// above all libraries, so that a new function proves no other theorem again.
#![tactic(auto)]

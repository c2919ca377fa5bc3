// A plan value and its names laid out as bytes, and the theorem that ties the reader to that: document 01, "The plan file", and document 02, request 6.
// No code: plan_bytes knows nothing of the reader, and the promises say that the two fit together both ways.
#![tactic(auto)]

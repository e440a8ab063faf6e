//! What a book is to be: its state, five of its calls (submit, skip, keep, put aside, cut), and laws of
//! every list of these. It is a draft: definitions alone, with no call, and no law is proved.
#![tactic(auto)]

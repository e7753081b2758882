// The PNG of a page: definitions and laws. It is written by `png_writer`.
#![tactic(auto)]

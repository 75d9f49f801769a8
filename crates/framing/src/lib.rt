// Laws of pages and frames, with no functions: a good page is the text of what it holds, and the text of a sheet reads back.
#![tactic(auto)]

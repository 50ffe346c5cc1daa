// No code: how far the lines of a quarter hour, added up, can lie from its pool line, proved of the sheet of every accepted input.

#![tactic(auto)]

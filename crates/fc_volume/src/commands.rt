// The commands that change a volume, a file each.
mod cdir;
mod delete;
mod mark;
mod rename;
mod save;
mod save_from;
mod set;
